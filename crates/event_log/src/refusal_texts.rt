//! What is reported about a refused log.

ghost use Rattle.std.specs.Prelude.{◌≡◌};
ghost use Rattle.event_log.specs.RefusalTexts.{log_error_text, printed, words_text};

use crate::columns::Column;
use crate::names::Name;
use crate::refusals::LogError;
use std::fmt;
use trace_text::names::text_of;

/// A name as it is printed. Each name of a log is text.
#[tactic(auto, unfolding(crate::specs::RefusalTexts::printed))]
pub fn printed(name: &[u8]) -> &str
    ensures { result.now ≡ printed name.now }
{
    match text_of(name) {
        Some(text) => text,
        None => "?",
    }
}

impl fmt::Display for Name {
    ghost use Rattle.std.specs.Prelude.{Some};
    ghost use Rattle.event_log.specs.RefusalTexts.{printed};

    ghost output = { λ name. Some (printed name) };

    fn fmt<W: fmt::Write>(&self, f: &mut fmt::Formatter<W>) -> fmt::Result {
        f.write_str(printed(self.as_bytes()))
    }
}

impl fmt::Display for LogError {
    ghost use Rattle.std.specs.Prelude.{Some};
    ghost use Rattle.event_log.specs.RefusalTexts.{log_error_text};

    ghost output = { λ why. Some (log_error_text why) };

    fn fmt<W: fmt::Write>(&self, f: &mut fmt::Formatter<W>) -> fmt::Result {
        fmt::Display::fmt(&words_of(self), f)
    }
}

/// The words of a refusal, with what they are about.
#[derive(Clone, Copy)]
enum Words<'a> {
    Log(&'static str),
    Column(&'static str, Column),
    Record(u64, &'static str),
    Message(u64, &'a Name, &'static str),
    Receiver(u64, &'a Name, &'a Name),
    SecondEvent(u64, &'a Name, u64),
}

impl fmt::Display for Words<'_> {
    ghost use Rattle.std.specs.Prelude.{Some};
    ghost use Rattle.event_log.specs.RefusalTexts.{words_text};

    ghost output = { λ words. Some (words_text words) };

    fn fmt<W: fmt::Write>(&self, f: &mut fmt::Formatter<W>) -> fmt::Result {
        match self {
            Words::Log(words) => f.write_str(words),
            Words::Column(words, column) => write!(f, "{words}{column}"),
            Words::Record(no, words) => write!(f, "record {no}: {words}"),
            Words::Message(no, message, words) => {
                write!(f, "record {no}: message {message}{words}")
            }
            Words::Receiver(no, message, node) => {
                write!(f, "record {no}: message {message} is for {node}")
            }
            Words::SecondEvent(no, node, tick) => {
                write!(f, "record {no}: a second event of {node} in tick {tick}")
            }
        }
    }
}

fn words_of(why: &LogError) -> Words<'_>
    ensures { words_text result ≡ log_error_text why.now }
{
    match why {
        LogError::TooLarge => Words::Log("text too large"),
        LogError::NoColumn(column) => Words::Column("no column ", *column),
        LogError::TwoColumns(column) => Words::Column("two columns ", *column),
        LogError::FromUnfit => Words::Log("--from does not fit the times"),
        LogError::TooManyEvents => Words::Log("too many events"),
        LogError::BadFields(no) => Words::Record(*no, "bad fields"),
        LogError::BadTime(no) => Words::Record(*no, "bad time"),
        LogError::BadEvent(no) => Words::Record(*no, "bad event"),
        LogError::BadNode(no, _) => Words::Record(*no, "bad node"),
        LogError::BadMessage(no) => Words::Record(*no, "bad message"),
        LogError::NoEvents => Words::Log("no events"),
        LogError::TooManyNodes(no) => Words::Record(*no, "too many nodes"),
        LogError::SentBefore(no, message) => Words::Message(*no, message, " was sent before"),
        LogError::TooFewNodes => Words::Log("too few nodes"),
        LogError::TickUnfit => Words::Log("--tick does not fit the times"),
        LogError::UntilUnfit => Words::Log("--until does not fit the times"),
        LogError::IdleUnfit => Words::Log("--idle does not fit the times"),
        LogError::TooManyTicks => Words::Log("too many ticks"),
        LogError::NeverSent(no, message) => Words::Message(*no, message, " was never sent"),
        LogError::WrongReceiver(no, message, node) => Words::Receiver(*no, message, node),
        LogError::ReceivedBefore(no, message) => {
            Words::Message(*no, message, " was received before")
        }
        LogError::NotLater(no, message, _) => {
            Words::Message(*no, message, " is received no later than it was sent")
        }
        LogError::SecondEvent(no, node, tick, _) => Words::SecondEvent(*no, node, *tick),
        LogError::Cycle(no, _) => Words::Record(*no, "behind a cycle of messages"),
        LogError::NoOffsets(_) => {
            Words::Log("no offsets of clocks bring the messages into order")
        }
        LogError::TooLate => Words::Log("times are too late to align the clocks"),
        LogError::TooManySteps => Words::Log("too many steps"),
        LogError::Memory => Words::Log("out of memory"),
    }
}

//! The runs of a list: how each of them is judged, and the line that is printed for it.

ghost use Rattle.std.specs.Prelude.{◌≡◌, ◌≢◌, ◌++◌, ◌∷◌, [], IfErr, IfOk, IfNone, IfSome};
ghost use Rattle.std.specs.Prelude.{OnOk, string_bytes};
ghost use Rattle.std.specs.Str.{IsUtf8};
ghost use Rattle.text_commands.specs.ListedRuns.{AreListed, IsListedCorrect, IsListedFault, IsListedJudging};
ghost use Rattle.text_commands.specs.ListedRuns.{IsNoCorrect, IsNoPath, IsUnlisted, one_line, start_of, told_run};
ghost use Rattle.text_commands.specs.ListedRuns.{unjudged_words};
ghost use Rattle.text_commands.specs.Serving.{IsAtEnd, IsReadFault, faults_of, inner_of};

use crate::texts::read_whole;
use command_faults::{Fault, ListedField, fault_text};
use command_options::Judging;
use judged_runs::{ListedRun, RunListError, runs_of_text};
use std::alloc::{AllocError, Global};
use std::io::Read;
use std::str::from_utf8;
use step_trace::Correct;
use trace_text::Counting;
use trace_text::records::number;

/// Reads a list of runs to its end.
///
/// Refuses Read at the first fault, and Runs with the first refusal of the text. Memory may come instead.
pub fn read_runs<R: Read>(alloc: Global, reader: &mut Counting<R>) -> Result<Vec<ListedRun>, Fault>
    ensures runs { IfOk result
        (λ runs. IfSome (R.remaining (inner_of reader.old)) (λ known. AreListed known runs.items)) }
    ensures end { OnOk result (IsAtEnd (R.remaining (inner_of reader.new))) }
    ensures faultless { OnOk result (faults_of reader.new ≡ faults_of reader.old) }
    ensures refused { IfErr result
        (λ why. IfSome (R.remaining (inner_of reader.old)) (λ known. IsUnlisted known why)) }
    ensures read { IfErr result (IsReadFault (faults_of reader.old) (faults_of reader.new)) }
{
    let text = read_whole(alloc, reader, Fault::Runs(RunListError::TooLarge))?;
    Ok(runs_of_text(alloc, &text)?)
}

/// What a run of a list is judged for: what is asked of all runs, with its own correct processors and its own start, if
/// it has them. The decisions are those of the replay if it has no file of them.
///
/// Refuses Listed for the first of the two that is bad. Memory may come instead.
pub fn listed_judging(alloc: Global, asked: &Judging, run: &ListedRun) -> Result<Judging, Fault>
    ensures judging { IfOk result (IsListedJudging asked.now run.now) }
    ensures refused { IfErr result (IsListedFault asked.now run.now) }
{
    let Some(correct) = correct_of(asked.correct, &run.correct) else {
        return Err(Fault::Listed(ListedField::Correct));
    };
    let Some(start) = start_of(asked.start, &run.start) else {
        return Err(Fault::Listed(ListedField::Start));
    };
    Ok(Judging {
        correct,
        within: String::from_str(alloc, asked.within.as_str())?,
        start,
        valid: asked.valid,
        whole: asked.whole,
        due: asked.due,
        factor: asked.factor,
        rows: asked.rows,
        replay: run.decisions.is_empty(),
    })
}

/// The path in this field of a run.
///
/// Refuses Listed for the field, if its bytes are no text or there are none. Memory may come instead.
pub fn listed_path(alloc: Global, field: ListedField, bytes: &[u8]) -> Result<String, Fault>
    ensures path { IfOk result (λ path. string_bytes path ≡ bytes.now) }
    ensures some { OnOk result (bytes.now ≢ []) }
    ensures refused { IfErr result (IsNoPath field bytes.now) }
{
    match utf8_of(bytes) {
        Some(path) if !path.is_empty() => Ok(String::from_str(alloc, path)?),
        _ => Err(Fault::Listed(field)),
    }
}

/// The line of a run of this number that was judged, by the line of its verdict.
pub fn judged_line(alloc: Global, run: u64, verdict: &[u8]) -> Result<Vec<u8>, AllocError>
    ensures { IfOk result (λ line. line.items ≡ told_run run verdict.now) }
{
    let lead = RunLead(run).to_string(alloc)?;
    let mut line = Vec::from_slice(alloc, lead.as_str().as_bytes())?;
    line.extend_from_slice(verdict)?;
    Ok(line)
}

/// The line of a run of this number that wasn't judged, for this fault.
pub fn unjudged_line(alloc: Global, run: u64, why: &Fault) -> Result<Vec<u8>, AllocError>
    ensures { IfOk result (λ line. line.items ≡ told_run run (unjudged_words why.now)) }
{
    let lead = RunLead(run).to_string(alloc)?;
    let words = fault_text(alloc, why)?;
    let mut line = Vec::from_slice(alloc, lead.as_str().as_bytes())?;
    line.extend_from_slice(b"not judged: ")?;
    push_one_line(&mut line, words.as_str().as_bytes())?;
    line.push(b'\n')?;
    Ok(line)
}

/// Adds a text of several lines as one, with a semicolon between each two.
fn push_one_line(line: &mut Vec<u8>, text: &[u8]) -> Result<(), AllocError>
    ensures { OnOk result (line.new.items ≡ line.old.items ++ one_line text.now) }
{
    for byte in text {
        if *byte == b'\n' {
            line.extend_from_slice(b"; ")?;
        } else {
            line.push(*byte)?;
        }
    }
    Ok(())
}

/// The text that bytes are, if they are UTF-8.
fn utf8_of(bytes: &[u8]) -> Option<&str>
    ensures text { IfSome result (λ text. text.now ≡ bytes.now) }
    ensures refused { IfNone result (¬ IsUtf8 bytes.now) }
{
    match from_utf8(bytes) {
        Ok(text) => Some(text),
        Err(_) => None,
    }
}

/// The correct processors that a text lists; these, if it is empty.
fn correct_of(asked: Correct, text: &[u8]) -> Option<Correct>
    ensures named { IfSome result (IsListedCorrect asked text.now) }
    ensures refused { IfNone result (IsNoCorrect text.now) }
{
    if text.is_empty() {
        return Some(asked);
    }
    Correct::parse(utf8_of(text)?)
}

/// The start that a text gives; this one, if it is empty.
fn start_of(asked: Option<u64>, text: &[u8]) -> Option<Option<u64>>
    ensures { result ≡ start_of asked text.now }
{
    if text.is_empty() {
        return Some(asked);
    }
    Some(Some(number(text)?))
}

/// The number of a run.
#[derive(Clone, Copy)]
struct RunLead(u64);

impl std::fmt::Display for RunLead {
    ghost use Rattle.std.specs.Prelude.{Some};
    ghost use Rattle.text_commands.specs.ListedRuns.{run_lead};

    ghost output = { λ lead. Some (run_lead lead.0) };

    fn fmt<W: std::fmt::Write>(&self, f: &mut std::fmt::Formatter<W>) -> std::fmt::Result {
        write!(f, "run {}: ", self.0)
    }
}

//! What the window of a log is, said at once.

ghost use Rattle.std.specs.Prelude.{◌≡◌, ℕ, List, Option, Ok, true};
ghost use Rattle.std.specs.List.{join_with_byte};
ghost use Rattle.event_log.specs.declared.times.LogEnd.{LogEnd};
ghost use Rattle.event_log.specs.declared.times.TimeUnit.{TimeUnit};
ghost use Rattle.event_log.specs.Names.{are_message_names};
ghost use Rattle.trace_text.specs.Records.{records_of_text};
ghost use Rattle.log_windows.specs.declared.reading.LogWindow.{LogWindow};
ghost use Rattle.log_windows.specs.declared.windows.Reading.{Reading};
ghost use Rattle.log_windows.specs.KeptNames.{names_kept};
ghost use Rattle.log_windows.specs.KeptRows.{Rows};
ghost use Rattle.log_windows.specs.KeptTexts.{Kept, kept_names};
ghost use Rattle.log_windows.specs.Lists.{spread_of};
ghost use Rattle.log_windows.specs.LogWindows.{IsWindow};
ghost use Rattle.log_windows.specs.WindowLaws.{IsCutOf, IsListOf, IsSentOf, IsWindowAtOnce, count_unsent, names_sent};
ghost use Rattle.log_windows.specs.Windows.{window_of};

/// The laws of windows. The window of a log has its header and, in their order, the rows of exactly those events whose
/// times are in it, with their places in the log. A log in which each send is to one node has the rows of all events.
/// Of the messages that a receive names, exactly those stay that are sent to its node.
///
/// These are theorems over the definitions, which go on record by record. The contract quantifies over all texts.
/// Calling it does nothing.
pub fn window_laws()
    ensures window { (unit : Option TimeUnit) (from : LogEnd) (until : Option LogEnd)
        (text : List ℕ) (w : LogWindow) → IsWindow unit from until text w
        → IsWindowAtOnce unit from until (records_of_text text) w }
    ensures cut { (unit : Option TimeUnit) (from : LogEnd) (until : Option LogEnd) (text : List ℕ)
        (r : Reading) → window_of unit from until text ≡ Ok r
        → IsCutOf unit from until (records_of_text text) r.rows }
    ensures lists { (text : List ℕ) (rows : Rows) → spread_of text ≡ Ok rows
        → IsListOf (records_of_text text) rows }
    ensures receives { (sent : List (List ℕ)) (text : List ℕ) (kept : Kept)
        → names_kept sent text ≡ Ok kept → IsSentOf sent (records_of_text text) kept }
    ensures kept { (sent : List (List ℕ)) (node field : List ℕ) → are_message_names field ≡ true
        → kept_names sent node field
        ≡ record {
          text = join_with_byte 32 (names_sent sent node field);
          unsent = count_unsent sent node field;
        } }
{}

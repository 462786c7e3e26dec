//! A text and options have one import.

ghost use Rattle.std.specs.Prelude.{◌≡◌, ℕ, List, Result};
ghost use Rattle.event_log.specs.declared.imports.Import.{Import};
ghost use Rattle.event_log.specs.declared.options.Options.{Options};
ghost use Rattle.event_log.specs.declared.refusals.LogError.{LogError};
ghost use Rattle.event_log.specs.Imports.{IsImportOf};
ghost use Rattle.event_log.specs.ReadLogs.{IsRead};
ghost use Rattle.event_log.specs.Logs.{SeenLog};
ghost use Rattle.event_log.specs.SentLaws.{AreFound};

/// The laws of imports. A text, read by options, gives one list of events, or is refused for one reason before there
/// are any. So a text and options have one import. If no name goes to a node twice, a node takes by a name the message
/// that was sent to it, or, if none was, the first of that name.
///
/// These are theorems over the definitions. The contract quantifies over all texts and options. Calling it does
/// nothing.
pub fn log_laws()
    ensures read_once { (o : Options) (text : List ℕ) (a b : Result SeenLog LogError)
        → IsRead o text a → IsRead o text b → a ≡ b }
    ensures messages { AreFound }
    ensures one_import { (o : Options) (text : List ℕ) (a b : Import) → IsImportOf o text a
        → IsImportOf o text b → a ≡ b }
{}

//! The names of nodes and messages, in logs and in tables of steps.

ghost use Rattle.std.specs.Prelude.{◌≡◌, ◌==◌, IsTrue, false, option_map, true};
ghost use Rattle.std.specs.List.{list_any};
ghost use Rattle.trace_text.specs.Names.{is_control, is_message_name, is_name, is_node_name, text_of};

use std::str::from_utf8;

/// The text that bytes encode, if they are UTF-8.
pub fn text_of(bytes: &[u8]) -> Option<&str>
    ensures { option_map (λ text. text.now) result ≡ text_of bytes.now }
{
    match from_utf8(bytes) {
        Ok(text) => Some(text),
        Err(_) => None,
    }
}

/// Whether these bytes are a name: text that isn't empty, without control characters.
#[tactic(auto, unfolding(crate::specs::Names::is_name))]
pub fn is_name(name: &[u8]) -> bool
    ensures { result ≡ is_name name.now }
{
    if name.len() == 0 {
        return false;
    }
    if text_of(name).is_none() {
        return false;
    }
    !has_control(name)
}

fn has_control(name: &[u8]) -> bool
    ensures { result ≡ list_any is_control name.now }
{
    name.iter().any(|byte| *byte < 32 || *byte == 127)
}

/// Whether these bytes are a name of printable ASCII without this byte. Most names are, and need no other test.
fn is_plain(name: &[u8], other: u8) -> bool
    ensures name { IsTrue result → is_name name.now ≡ true }
    ensures other { IsTrue result → list_any (λ byte. byte == other) name.now ≡ false }
{
    for byte in name {
        if *byte < 32 || *byte > 126 || *byte == other {
            return false;
        }
    }
    name.len() > 0
}

/// Whether these bytes are the name of a message: one without a space.
#[tactic(auto, unfolding(crate::specs::Names::is_message_name))]
pub fn is_message_name(name: &[u8]) -> bool
    ensures { result ≡ is_message_name name.now }
{
    if is_plain(name, b' ') {
        return true;
    }
    if !is_name(name) {
        return false;
    }
    !name.contains(&b' ')
}

/// Whether these bytes are the name of a node: one without a semicolon.
#[tactic(auto, unfolding(crate::specs::Names::is_node_name))]
pub fn is_node_name(name: &[u8]) -> bool
    ensures { result ≡ is_node_name name.now }
{
    if is_plain(name, b';') {
        return true;
    }
    if !is_name(name) {
        return false;
    }
    !name.contains(&b';')
}

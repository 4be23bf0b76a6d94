// The text of a seat's condition in an event's line.
ghost use Rattle.std.specs.Prelude.{◌≡◌};
ghost use Rattle.hostile.specs.Fields as the;

use line_fields::fields::after_tab;

// The text of a seat's condition: what follows the third tab.
pub fn condition_text(line: &[u8]) -> &[u8]
    ensures { result.now ≡ the.condition_text line.now }
{
    after_tab(after_tab(after_tab(line)))
}

// What follows the first field of a line.
ghost use Rattle.std.specs.Prelude.{◌≡◌};
ghost use Rattle.line_fields.specs.Fields as the;

use timetable::fields::field;

// What follows the first tab, further tabs included; nothing where there is no tab.
pub fn after_tab(line: &[u8]) -> &[u8]
    ensures { result.now ≡ the.after_tab line.now }
{
    let long = field(line, 1).len();
    if long < line.len() {
        &line[long + 1..]
    } else {
        &[]
    }
}

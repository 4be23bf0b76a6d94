// The bounds of the desk, as constants of the records and as numbers of the definitions, are the same.
ghost use Rattle.std.specs.Prelude.{◌≡◌};
ghost use Rattle.desk_seat.specs.Bounds.{max_timetable};
ghost use Rattle.desk.specs.Bounds.{seat_count, last_ticket};

use crate::Desk;

pub fn seats() -> usize
    ensures { result ≡ seat_count }
{
    Desk::SEATS
}

pub fn max_timetable() -> usize
    ensures { result ≡ max_timetable }
{
    Desk::MAX_TIMETABLE
}

pub fn last_ticket() -> u32
    ensures { result ≡ last_ticket }
{
    Desk::LAST_TICKET
}

// The desk's calls on a desk that is updated where it stands (document 01: the host program "keeps one desk for its whole life").
// Each calls the method of the crate `desk` by value and stores the desk that it hands back.
#![tactic(auto)]

ghost use Rattle.std.specs.Prelude.{◌≡◌};
ghost use Rattle.desk_seat.specs.Files.{over};
ghost use Rattle.desk_seat.specs.Request.{asking};
ghost use Rattle.desk_seat.specs.Answers.{turn_meaning};
ghost use Rattle.desk.specs.Answers.{open_meaning, close_meaning};
ghost use Rattle.desk.specs.Desk.{open_of, close_of, turn_of};

use desk::Desk;
use desk_seat::TurnAnswer;
use value::Refusal;

// Opens a condition.
pub fn open_in(desk: &mut Desk, text: &[u8]) -> Result<u32, Refusal>
    ensures { (desk.new ≡ (open_of (asking text.now) desk.old).desk) × (open_meaning result ≡ (open_of (asking text.now) desk.old).answer) }
{
    let after = desk.open(text);
    *desk = after.desk;
    after.answer
}

// Closes a ticket.
pub fn close_in(desk: &mut Desk, ticket: u32) -> Result<(), Refusal>
    ensures { (desk.new ≡ (close_of ticket desk.old).desk) × (close_meaning result ≡ (close_of ticket desk.old).answer) }
{
    let after = desk.close(ticket);
    *desk = after.desk;
    after.answer
}

// Takes a turn.
pub fn turn_in(desk: &mut Desk, t: &[u8]) -> TurnAnswer
    ensures { (desk.new ≡ (turn_of (over t.now) desk.old).desk) × (turn_meaning result ≡ (turn_of (over t.now) desk.old).answer) }
{
    let after = desk.turn(t);
    *desk = after.desk;
    after.answer
}

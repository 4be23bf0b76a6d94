// The text of a value's components.
ghost use Rattle.std.specs.Prelude.{◌≡◌, ◌++◌, ◌+◌, ◌≤◌, length};
ghost use Rattle.value_components.specs.Components.{of_moment, of_duration};
ghost use Rattle.calls_replies.specs.Replies.{reply_size};
ghost use Rattle.calls_replies.specs.Carried.{number_width, clock_room, zone_room};
ghost use Rattle.calls_replies.specs.ReplyParts.{date_field_text, clock_text, clock_field_text, zone_shown, parts_text};

use crate::Reply;
use crate::numbers::{push_number, push_signed};
use value::{Offset, Zone};
use value_components::{Clock, Lasting, OwnFields};

// A field that the kind has, by its name, and a space after it.
fn push_date_field(reply: &mut Reply, name: &[u8], f: Option<u16>)
    requires { length reply.old + length name.now + number_width + 1 ≤ reply_size }
    ensures text { reply.new ≡ reply.old ++ date_field_text name.now f }
    ensures within { length reply.new ≤ length reply.old + length name.now + number_width + 1 }
{
    if let Some(n) = f {
        push_number(reply, name, false, n as u32, 0);
        reply.push(b' ');
    }
}

fn push_clock(reply: &mut Reply, c: Clock)
    requires { length reply.old + clock_room ≤ reply_size }
    ensures text { reply.new ≡ reply.old ++ clock_text c }
    ensures within { length reply.new ≤ length reply.old + clock_room }
{
    push_number(reply, b"hours=", false, c.hours as u32, 0);
    push_number(reply, b" minutes=", false, c.minutes as u32, 0);
    push_number(reply, b" seconds=", false, c.seconds as u32, c.part);
}

fn push_clock_field(reply: &mut Reply, f: Option<Clock>)
    requires { length reply.old + clock_room + 1 ≤ reply_size }
    ensures text { reply.new ≡ reply.old ++ clock_field_text f }
    ensures within { length reply.new ≤ length reply.old + clock_room + 1 }
{
    if let Some(c) = f {
        push_clock(reply, c);
        reply.push(b' ');
    }
}

fn push_zone(reply: &mut Reply, z: Zone)
    requires { length reply.old + zone_room ≤ reply_size }
    ensures { reply.new ≡ reply.old ++ zone_shown z }
{
    match z {
        None => reply.push_all(b"zone=none"),
        Some(Offset::East(n)) => push_number(reply, b"zone=", false, n as u32, 0),
        Some(Offset::West(n)) => push_number(reply, b"zone=", true, n as u32, 0),
    }
}

pub fn of_moment(f: OwnFields) -> Reply
    ensures { result ≡ parts_text (of_moment f) }
{
    let mut reply = Reply::new();
    push_date_field(&mut reply, b"year=", f.year);
    push_date_field(&mut reply, b"month=", f.month);
    push_date_field(&mut reply, b"day=", f.day);
    push_clock_field(&mut reply, f.clock);
    push_zone(&mut reply, f.zone);
    reply
}

pub fn of_duration(l: Lasting) -> Reply
    ensures { result ≡ parts_text (of_duration l) }
{
    let mut reply = Reply::new();
    push_signed(&mut reply, b"years=", l.years, 0);
    push_signed(&mut reply, b" months=", l.months, 0);
    push_signed(&mut reply, b" days=", l.days, 0);
    push_signed(&mut reply, b" hours=", l.hours, 0);
    push_signed(&mut reply, b" minutes=", l.minutes, 0);
    push_signed(&mut reply, b" seconds=", l.seconds, l.part);
    reply
}

// Numbers with a sign, in a reply.
ghost use Rattle.std.specs.Prelude.{◌≡◌, ◌++◌, ◌+◌, ◌<◌, ◌≤◌, length, true};
ghost use Rattle.basis.specs.Choice.{pick};
ghost use Rattle.calls_replies.specs.Replies.{reply_size, sign_text, number_text};
ghost use Rattle.calls_replies.specs.Carried.{number_width};
ghost use Rattle.calls_replies.specs.ReplyParts.{is_negative, signed_text};

use crate::Reply;

// Whether either is below zero.
fn is_negative(z: i32, fraction: i32) -> bool
    ensures { result ≡ pick (is_negative z) true (is_negative fraction) }
{
    z < 0 || fraction < 0
}

// A minus, or nothing.
fn push_sign(reply: &mut Reply, negative: bool)
    requires { length reply.old < reply_size }
    ensures { reply.new ≡ reply.old ++ sign_text negative }
{
    if negative {
        reply.push(b'-');
    }
}

// A name and a number with its fraction.
pub fn push_number(reply: &mut Reply, name: &[u8], negative: bool, n: u32, ticks: u32)
    requires { length reply.old + length name.now + number_width ≤ reply_size }
    ensures text { reply.new ≡ reply.old ++ (name.now ++ number_text negative n ticks) }
    ensures within { length reply.new ≤ length reply.old + length name.now + number_width }
{
    reply.push_all(name);
    push_sign(reply, negative);
    reply.push_decimal(n as u64);
    reply.push_fraction(ticks as u64);
}

pub fn push_signed(reply: &mut Reply, name: &[u8], z: i32, fraction: i32)
    requires { length reply.old + length name.now + number_width ≤ reply_size }
    ensures text { reply.new ≡ reply.old ++ (name.now ++ signed_text z fraction) }
    ensures within { length reply.new ≤ length reply.old + length name.now + number_width }
{
    push_number(
        reply,
        name,
        is_negative(z, fraction),
        z.unsigned_abs(),
        fraction.unsigned_abs(),
    );
}

// The call on the values that were read, and what it answers in words.
ghost use Rattle.std.specs.Prelude.{◌≡◌, true};
ghost use Rattle.text.specs.Writing.{text_of};
ghost use Rattle.value_components.specs.Components as components;
ghost use Rattle.value.specs.Kinds as kinds;
ghost use Rattle.value.specs.Carried.{valid};
ghost use Rattle.operation_ordering.specs.Order as order;
ghost use Rattle.calls_replies.specs.ReplyParts.{parts_text};
ghost use Rattle.calls.specs.Answers as the;

use calls_asked::{One, Two};
use calls_replies::numbers::push_number;
use calls_replies::{Reply, parts};
use std::cmp::Ordering;
use value::{Refusal, Value};
use value_components::Components;

pub fn refused(r: Refusal) -> Reply
    ensures { result ≡ the.refused_text r.number }
{
    let mut reply = Reply::new();
    push_number(&mut reply, b"refused\t", false, r.number as u32, 0);
    reply
}

// The text of a value.
pub fn written(v: Value) -> Reply
    requires { kinds.ok_value v ≡ true }
    ensures { result ≡ text_of v }
{
    Reply::from_slice(text::text_of(v).as_slice())
}

pub fn value_said(a: Result<Value, Refusal>) -> Reply
    requires { valid (kinds.meaning a) ≡ true }
    ensures { result ≡ the.said text_of (kinds.meaning a) }
{
    match a {
        Ok(v) => written(v),
        Err(r) => refused(r),
    }
}

fn order_word(o: Ordering) -> &'static [u8]
    ensures { result.now ≡ the.order_text (order.ordered o) }
{
    match o {
        Ordering::Less => b"lt",
        Ordering::Equal => b"eq",
        Ordering::Greater => b"gt",
    }
}

fn order_said(a: Result<Ordering, Refusal>) -> Reply
    ensures { result ≡ the.said the.order_text (order.compared_meaning a) }
{
    match a {
        Ok(o) => Reply::from_slice(order_word(o)),
        Err(r) => refused(r),
    }
}

fn parts_said(p: Components) -> Reply
    ensures { result ≡ parts_text (components.parts_said p) }
{
    match p {
        Components::Moment(f) => parts::of_moment(f),
        Components::Duration(l) => parts::of_duration(l),
    }
}

fn components_said(a: Result<Components, Refusal>) -> Reply
    ensures { result ≡ the.said parts_text (components.components_meaning a) }
{
    match a {
        Ok(p) => parts_said(p),
        Err(r) => refused(r),
    }
}

pub fn one_said(o: One, a: Value) -> Reply
    requires { kinds.ok_value a ≡ true }
    ensures { result ≡ the.one_text o a }
{
    match o {
        One::Read => written(a),
        One::Unzone => value_said(operation::unzone(a)),
        One::Components => components_said(value_components::of_value(a)),
    }
}

pub fn two_said(o: Two, a: Value, b: Value) -> Reply
    ensures { result ≡ the.two_text o a b }
{
    match o {
        Two::Compare => order_said(operation::compare(a, b)),
        Two::Add => value_said(operation::plus(a, b)),
        Two::Subtract => value_said(operation::minus(a, b)),
        Two::Adjust => value_said(operation::adjust(a, b)),
    }
}

// The label rules at work without the machine: document 01's firings about labels alone, a line each, computed by the
// compiled code.
#![tactic(auto)]

use labels::{Bits, Label};
use std::io;

// Lines are written piece by piece: of a line that `println!` gathers a pipe without room takes nothing.
fn say(rt: &impl Print, text: &str) -> io::Result<()> {
    rt.print(text)
}

fn number(rt: &impl Print, n: Bits) -> io::Result<()> {
    rt.print(n)
}

fn answer(rt: &impl Print, holds: bool) -> io::Result<()> {
    if holds {
        say(rt, ": yes\n")
    } else {
        say(rt, ": no\n")
    }
}

fn flow(rt: &impl Print, from: Bits, to: Bits) -> io::Result<()> {
    number(rt, from)?;
    say(rt, " flows to ")?;
    number(rt, to)?;
    answer(rt, Label(from).flows_to(Label(to)))
}

// What two labels make together, under its name.
fn together(rt: &impl Print, name: &str, a: Bits, b: Bits, made: Label) -> io::Result<()> {
    say(rt, name)?;
    number(rt, a)?;
    say(rt, " and ")?;
    number(rt, b)?;
    say(rt, ": ")?;
    number(rt, made.0)?;
    say(rt, "\n")
}

fn join(rt: &impl Print, a: Bits, b: Bits) -> io::Result<()> {
    together(rt, "join of ", a, b, Label(a).join(Label(b)))
}

fn meet(rt: &impl Print, a: Bits, b: Bits) -> io::Result<()> {
    together(rt, "meet of ", a, b, Label(a).meet(Label(b)))
}

fn soundness(rt: &impl Print, label: Bits) -> io::Result<()> {
    number(rt, label)?;
    say(rt, " is uncompromised")?;
    answer(rt, Label(label).is_uncompromised())
}

// A change of label, before its answer.
fn change(rt: &impl Print, verb: &str, from: Bits, to: Bits, under: Bits) -> io::Result<()> {
    say(rt, verb)?;
    number(rt, from)?;
    say(rt, " to ")?;
    number(rt, to)?;
    say(rt, " under ")?;
    number(rt, under)
}

fn raise(rt: &impl Print, from: Bits, to: Bits, under: Bits) -> io::Result<()> {
    change(rt, "raise ", from, to, under)?;
    answer(rt, Label(from).may_raise(Label(to), Label(under)))
}

fn relabel(rt: &impl Print, from: Bits, to: Bits, under: Bits) -> io::Result<()> {
    change(rt, "relabel ", from, to, under)?;
    answer(rt, Label(from).may_relabel(Label(to), Label(under)))
}

fn main(rt: HostRuntime) -> io::Result<()> {
    flow(&rt, 255, 15)?;
    flow(&rt, 255, 0)?;
    join(&rt, 255, 0)?;
    meet(&rt, 255, 0)?;
    soundness(&rt, 18)?;
    soundness(&rt, 51)?;
    raise(&rt, 255, 15, 255)?;
    raise(&rt, 240, 15, 240)?;
    relabel(&rt, 255, 240, 240)?;
    relabel(&rt, 15, 0, 0)
}

// Replays calls: reads the records of docs/CALLS.md from standard input, makes each call on the responder, and writes its line before it
// waits for the next record.
#![tactic(auto)]

mod lines;
mod parts;
mod records;
mod standing;
mod text;
mod word;

ghost use Rattle.std.specs.Prelude.{◌≡◌};

// Walks through the whole input. No contract can speak of what is read and written: the lines are tested, not proved. The longest
// payload that a header can announce has 65,535 octets.
pub fn walk(rt: &(impl Input + Print))
    ensures { result ≡ tt }
{
    let mut payload = [0u8; 65536];
    records::replay(rt, &mut payload);
}

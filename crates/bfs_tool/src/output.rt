// Texts for a sink.
ghost use Rattle.std.specs.Prelude.{◌≡◌, ◌⊎◌, ◌≤◌, ◌<◌, ℕ, length, take, OnOk, OnErr};
ghost use Rattle.bfs_base.specs.Counts.{Rose};
ghost use Rattle.bfs_ports.specs.Ports.{appended};
ghost use Rattle.bfs_tool.specs.Tool.{Prints};

use bfs_ports::{Failed, Sink};

/// Puts all of a text, or what the sink took of it.
pub fn put_all<W: Sink>(out: &mut W, text: &[u8]) -> Result<(), Failed>
    ensures all { OnOk result (W.written out.new ≡ appended (W.written out.old) text.now) }
    ensures some { OnErr result ((n : ℕ) × (n ≤ length text.now) × (W.written out.new ≡ appended (W.written out.old) (take n text.now))) }
    ensures later { W.faults out.old ≤ W.faults out.new }
    ensures cause { OnErr result (Rose (W.faults out.old) (W.faults out.new)) }
    ensures text { OnErr result (0 < length text.now) }
{
    let mut at = 0;
    'pieces: while at < text.len() {
        let n = out.put(&text[at..])?;
        if n == 0 {
            return Err(Failed);
        }
        at += n;
    }
    Ok(())
}

/// Prints a text. The status stays, but a failed output is 6 where it was 0.
pub fn report<W: Sink>(out: &mut W, text: &[u8], status: u8) -> u8
    ensures printed { Prints (W.written out.old) (W.written out.new) (W.faults out.old) (W.faults out.new) text.now }
    // At status 0 all of the text was taken.
    ensures whole { result ≡ 0 → W.written out.new ≡ appended (W.written out.old) text.now }
    ensures later { W.faults out.old ≤ W.faults out.new }
    ensures status { (result ≡ status) ⊎ ((status ≡ 0) × (result ≡ 6) × Rose (W.faults out.old) (W.faults out.new) × (0 < length text.now)) }
{
    match put_all(out, text) {
        Err(_) if status == 0 => 6,
        _ => status,
    }
}

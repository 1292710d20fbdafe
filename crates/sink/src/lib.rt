// Sinks take bytes up to a limit: what a sink means, a byte area, and a file of checked blocks.
#![tactic(auto)]

ghost use Rattle.std.specs.Prelude.{◌≡◌, ℕ, ◌≤◌, List, MatchResult};
ghost use Rattle.sink.specs.Outcome.{Adds, Short};
ghost use Rattle.util.specs.Lengths.{exact};

use fault::SinkFault;

pub mod block_file;
pub mod byte_area;
mod check;
pub mod fault;
pub mod laws;
mod layout;
#[cfg(test)]
mod tests;

// What bytes are put into, up to a limit. Its meaning is the bytes held and the number of bytes left, and nothing else.
pub trait Sink {
    ghost held: { Self → List ℕ };

    ghost left: { Self → ℕ };

    // How many bytes more it takes.
    fn bytes_left(&self) -> u64
        ensures { result ≡ left self.now };

    // Adds the bytes at the end, all of them or, where they are more than are left, none.
    fn put(&mut self, bytes: &[u8]) -> Result<(), SinkFault>
        ensures { Adds (λ e. e) held left self.old bytes.now self.new result };
}

// Whether so many bytes are at most `left`; `None` is a number of bytes beyond 64 bits.
// A sink's own `put` calls it, and not `room`: a method that calls what is generic over its trait gets no proof.
pub fn within(wanted: Option<u64>, left: u64) -> Result<(), SinkFault>
    ensures { (n : ℕ) → wanted ≡ exact n → MatchResult result (λ _. n ≤ left) (λ e. Short n left e) }
{
    match wanted {
        Some(n) if n <= left => Ok(()),
        _ => Err(SinkFault {
            wanted: wanted.unwrap_or(u64::MAX),
            left,
        }),
    }
}

// Whether so many bytes fit into what is left of a sink, or the fault that a put of them would answer.
pub fn room<K: Sink>(sink: &K, wanted: Option<u64>) -> Result<(), SinkFault>
    ensures { (n : ℕ) → wanted ≡ exact n → MatchResult result (λ _. n ≤ K.Sink.left sink.now) (λ e. Short n (K.Sink.left sink.now) e) }
{
    within(wanted, sink.bytes_left())
}

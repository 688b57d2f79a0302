//! The form `gen`: the market of a number, and what its compression comes to.

ghost use Rattle.std.specs.Prelude.{◌≡◌};
ghost use Rattle.compress_server.specs.Gen.{gen_end, GenRuns};
ghost use Rattle.compress_server.specs.Seen.{output_by};

use crate::ending::End;
use command_types::Mode;
use file_market::summarize;
use network_laws::Solver;
use outside::{Gate, Sink, write_all};
use parallel_solver::Workers;
use std::alloc::Global;
use std::thread::Threads;
use trade_file::generate;

/// How a gen ended.
#[derive(Clone, Copy)]
pub enum GenEnd {
    /// The summary was written.
    Done,
    /// The output failed.
    SinkFault,
    /// The memory that was needed was not to be had.
    Memory,
}

impl From<GenEnd> for End {
    ghost from_gives = { λ own end. end ≡ gen_end own };

    fn from(own: GenEnd) -> End {
        match own {
            GenEnd::Done => End::Done,
            GenEnd::SinkFault => End::SinkFault,
            GenEnd::Memory => End::Memory,
        }
    }
}

/// Makes the market of the number, has the workers solve it in the hybrid mode, and writes the summary.
pub fn run_gen<R: Threads + Sync, V: Solver, G: Gate, K: Sink>(
    alloc: Global,
    number: u64,
    output: &mut K,
    workers: &Workers<'_, R, V, G>,
) -> GenEnd
    ensures { GenRuns number (output_by K.Sink output.old) (output_by K.Sink output.new) result }
{
    let Ok((roster, trades)) = generate(alloc, number) else {
        return GenEnd::Memory;
    };
    let Ok(text) = summarize(alloc, &roster, Mode::Hybrid, &trades, workers) else {
        return GenEnd::Memory;
    };
    if write_all(output, &text).is_err() {
        return GenEnd::SinkFault;
    }
    GenEnd::Done
}

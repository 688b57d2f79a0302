//! The summaries of generated markets.

ghost use Rattle.std.specs.Prelude.{◌≤◌};

use crate::networks::so;
use command_types::Mode;
use file_market::summarize;
use outside::OpenGate;
use parallel_solver::Workers;
use path_solver::PathSolver;
use std::alloc::AllocGlobal;
use std::test::Fail;
use std::thread::Threads;
use trade_file::generate;

/// Numbers, and the summaries of their markets: the figures of the trades that `bench/markets.py` draws, and the least gross
/// that LEMON's network simplex finds (`bench/lemon.cpp`).
const SUMMARIES: &[(u64, &str)] = &[
    (
        1,
        "product P0 168203067 48514897 40138457 147381551\n\
         product P1 201794077 55588139 49460622 180096025\n\
         product P2 197753766 48192453 42951515 175764100\n\
         product P3 193666034 54841823 44948259 168258976\n\
         product P4 208527843 48449969 42283548 181854351\n\
         product P5 185095983 54765173 46718511 165809947\n\
         product P6 176911747 50133414 38024750 155884585\n\
         product P7 175836723 46759284 41970334 153513811\n\
         end 8\n",
    ),
    (
        2,
        "product P0 186135256 42369895 36827919 165959256\n\
         product P1 175511921 47703990 38187261 154252385\n\
         product P2 190334311 64240372 49284317 172067091\n\
         product P3 205910626 49755824 44393678 179326636\n\
         product P4 181342202 54755143 43965845 161554978\n\
         product P5 173550932 39837236 34339536 159154674\n\
         product P6 199381758 56572648 50141223 167580926\n\
         product P7 187029579 56156009 50556718 168141405\n\
         end 8\n",
    ),
];

/// That so many workers sum each market up like this.
fn are_summed_up<R: Threads + Sync + AllocGlobal>(
    rt: &R,
    workers: u32,
    summaries: &[(u64, &str)],
) -> Result<(), Fail>
    requires { (1 ≤ workers) × (workers ≤ 64) }
{
    let solver = PathSolver::new(rt.alloc());
    let workers = Workers::new(rt, workers, &solver, &OpenGate);
    for (number, summary) in summaries {
        let (roster, trades) = generate(rt.alloc(), *number)?;
        let text = summarize(rt.alloc(), &roster, Mode::Hybrid, &trades, &workers)?;
        so(
            text.as_slice() == summary.as_bytes(),
            "it sums up otherwise",
        )?;
    }
    Ok(())
}

#[test]
fn any_number_of_workers_sums_up_generated_markets(rt: HostRuntime) -> Result<(), Fail> {
    are_summed_up(&rt, 1, SUMMARIES)?;
    are_summed_up(&rt, 4, SUMMARIES)?;
    are_summed_up(&rt, 64, SUMMARIES)
}

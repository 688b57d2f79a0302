//! How long a record is.
ghost use Rattle.std.specs.Prelude.{◌≡◌, ◌≤◌, ◌+◌, ◌*◌, length, sum_by, is_some, IsTrue};
ghost use Rattle.command_types.specs.declared.spelling.Spelling.TheVariants.{Second};
ghost use Rattle.command_types.specs.Machine.{changes};
ghost use Rattle.command_types.specs.Sizes.{name_size, ceiling_size, solution_size, fields_size, record_size};
ghost use Rattle.command_types.specs.Spelling.{spelling, posted, most_solutions};
ghost use Rattle.units_core.specs.declared.limits.TheConstants.{MOST_MEMBERS, MOST_NAME};

use command_types::{Entry, Level, What};
use network_laws::{Row, Solution};
use units_core::Name;

// The byte with its length, and the name.
fn name_size(name: &Name) -> u64
    ensures size { result ≡ name_size name.now }
    ensures small { result ≤ MOST_NAME + 1 }
{
    1 + name.text().len() as u64
}

fn ceiling_size(ceiling: Option<Level>) -> u64
    ensures size { result ≡ ceiling_size ceiling }
    ensures small { result ≤ 9 }
{
    match ceiling {
        None => 1,
        Some(_) => 9,
    }
}

// A solution's rows, of which there is at most one for each pair.
pub(crate) fn rows_of(solution: &Solution) -> &[Row]
    ensures rows { result.now ≡ solution.now.network.rows }
    ensures few { length solution.now.network.rows ≤ 16777216 }
    ensures few_potentials { length solution.now.potentials ≤ MOST_MEMBERS }
{
    solution.network().rows()
}

fn solution_size(solution: &Solution) -> u64
    ensures size { result ≡ solution_size solution.now }
    ensures small { result ≤ 268435456 }
{
    let rows = rows_of(solution).len() as u64;
    let potentials = solution.potentials().len() as u64;
    6 + 12 * rows + 4 * potentials
}

fn solutions_size(solutions: &[Solution]) -> u64
    requires { length solutions.now ≤ most_solutions }
    ensures size { result ≡ sum_by solution_size solutions.now }
    ensures small { result ≤ 64 * 268435456 }
{
    let mut size = 0;
    for solution in solutions {
        size += solution_size(solution);
    }
    size
}

fn fields_size(what: &What) -> u64
    requires { posted what.now ≤ most_solutions }
    ensures size { result ≡ fields_size what.now }
    ensures small { result ≤ 18 + 64 * 268435456 }
{
    match what {
        What::Trade {
            seller,
            buyer,
            product,
            ..
        } => name_size(seller) + name_size(buyer) + name_size(product) + 12,
        What::Affirm { .. }
        | What::End { .. }
        | What::Hold { .. }
        | What::Free { .. }
        | What::Cancel { .. } => 8,
        What::Tol {
            other,
            product,
            ceiling,
            ..
        } => name_size(other) + name_size(product) + 9 + ceiling_size(*ceiling),
        What::Freeze { .. } => 4,
        What::Begin { .. } => 9,
        What::Post { solutions, .. } => 18 + solutions_size(solutions.rows()),
        What::Accept { .. } | What::Decline { .. } => 16,
        _ => 0,
    }
}

fn size_of(entry: &Entry) -> u64
    requires party { IsTrue (is_some entry.now.ask.by) }
    requires few { posted entry.now.ask.what ≤ most_solutions }
    ensures { result ≡ record_size entry.now.ask }
{
    let party = entry.ask.by.unwrap();
    13 + name_size(&party) + fields_size(&entry.ask.what)
}

/// How many bytes the change's record has. It takes no memory.
pub fn length(entry: &Entry) -> u64
    requires change { IsTrue (changes entry.now.ask.what) }
    requires party { IsTrue (is_some entry.now.ask.by) }
    requires few { posted entry.now.ask.what ≤ most_solutions }
    ensures exact { result ≡ length (spelling Second entry.now) }
    ensures size { result ≡ record_size entry.now.ask }
{
    size_of(entry)
}

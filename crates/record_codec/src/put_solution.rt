//! Solutions, written behind what stands.
ghost use Rattle.std.specs.Prelude.{◌≡◌, ◌++◌, ◌≤◌, length, All, OnOk};
ghost use Rattle.std.specs.Int.{w32, to_le_bytes};
ghost use Rattle.std.specs.List.{flat_map};
ghost use Rattle.network_laws.specs.Solutions.{IsSolution};
ghost use Rattle.command_types.specs.Spelling.{row_spelling, potential_spelling, solution_spelling, solutions_spelling, most_solutions};

use crate::put::put_short;
use crate::size::rows_of;
use network_laws::{Row, Solution};
use std::alloc::AllocError;

fn put_word(out: &mut Vec<u8>, number: u32) -> Result<(), AllocError>
    ensures { OnOk result (out.new.items ≡ out.old.items ++ to_le_bytes w32 number) }
{
    out.extend_from_slice(&number.to_le_bytes())?;
    Ok(())
}

// The twelve bytes of a row.
fn row_bytes(row: Row) -> [u8; 12]
    ensures { result ≡ row_spelling row }
{
    let s = row.seller.to_le_bytes();
    let b = row.buyer.to_le_bytes();
    let a = row.amount.to_le_bytes();
    [
        s[0], s[1], b[0], b[1], a[0], a[1], a[2], a[3], a[4], a[5], a[6], a[7],
    ]
}

fn put_row(out: &mut Vec<u8>, row: Row) -> Result<(), AllocError>
    ensures { OnOk result (out.new.items ≡ out.old.items ++ row_spelling row) }
{
    out.extend_from_slice(&row_bytes(row))?;
    Ok(())
}

fn put_rows(out: &mut Vec<u8>, rows: &[Row]) -> Result<(), AllocError>
    ensures { OnOk result (out.new.items ≡ out.old.items ++ flat_map row_spelling rows.now) }
{
    for row in rows {
        put_row(out, *row)?;
    }
    Ok(())
}

fn put_potential(out: &mut Vec<u8>, potential: i32) -> Result<(), AllocError>
    ensures { OnOk result (out.new.items ≡ out.old.items ++ potential_spelling potential) }
{
    out.extend_from_slice(&potential.to_le_bytes())?;
    Ok(())
}

fn put_potentials(out: &mut Vec<u8>, potentials: &[i32]) -> Result<(), AllocError>
    ensures { OnOk result (out.new.items ≡ out.old.items ++ flat_map potential_spelling potentials.now) }
{
    for potential in potentials {
        put_potential(out, *potential)?;
    }
    Ok(())
}

fn put_solution(out: &mut Vec<u8>, solution: &Solution) -> Result<(), AllocError>
    ensures appends { OnOk result (out.new.items ≡ out.old.items ++ solution_spelling solution.now) }
    ensures form { OnOk result (IsSolution solution.now) }
{
    let rows = rows_of(solution);
    put_short(out, solution.network().members())?;
    put_word(out, rows.len() as u32)?;
    put_rows(out, rows)?;
    put_potentials(out, solution.potentials())
}

fn put_each(out: &mut Vec<u8>, solutions: &[Solution]) -> Result<(), AllocError>
    ensures appends { OnOk result (out.new.items ≡ out.old.items ++ flat_map solution_spelling solutions.now) }
    ensures form { OnOk result (All IsSolution solutions.now) }
{
    for solution in solutions {
        put_solution(out, solution)?;
    }
    Ok(())
}

pub(crate) fn put_solutions(out: &mut Vec<u8>, solutions: &[Solution]) -> Result<(), AllocError>
    requires { length solutions.now ≤ most_solutions }
    ensures appends { OnOk result (out.new.items ≡ out.old.items ++ solutions_spelling solutions.now) }
    ensures form { OnOk result (All IsSolution solutions.now) }
{
    put_short(out, solutions.len() as u16)?;
    put_each(out, solutions)
}

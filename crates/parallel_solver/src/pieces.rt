//! The pieces of problems: the parts of each, and where a problem has just one part, the problem itself.

use network_laws::Problem;
use split_parts::Partition;
use std::alloc::Global;
use std::marker::Model;

/// The part of a problem at a place among its parts.
#[derive(Clone, Copy)]
pub struct Piece<'a> {
    problem: &'a Problem,
    partition: &'a Partition,
    at: usize,
}

/// Pieces of problems, in order. Contracts see the list of them.
#[derive(Drop)]
pub struct Pieces<'a> {
    pieces: Vec<Piece<'a>>,
    alloc: Global,
}

impl<'a> Model for Pieces<'a> {
    ghost use Rattle.std.specs.Prelude.{List, All, map};
    ghost use Rattle.network_laws.specs.Solutions.{ProblemData};
    ghost use Rattle.parallel_solver.specs.Pieces.{piece_of, IsPiece};

    ghost Value = { List ProblemData };

    ghost view = { λ pieces. map piece_of pieces.pieces.items };

    ghost invariant = { λ pieces. All IsPiece pieces.pieces.items };
}

ghost use Rattle.std.specs.Prelude.{◌≡◌, ◌<◌, ◌+◌, ◌++◌, [], length, IfOk};
ghost use Rattle.split_parts.specs.Parts.{IsPartitionOf};
ghost use Rattle.parallel_solver.specs.Cuts.{pieces_in, pieces_of, AreCuts};
ghost use Rattle.network_laws.specs.Solved.{IsSolved};
ghost use Rattle.parallel_solver.specs.Pieces.{piece_of, IsPiece};
ghost use Rattle.parallel_solver.specs.Places.{SolvesAt};

use network_laws::{Solution, Solver};
use std::alloc::AllocError;

/// The parts of each problem.
pub fn cuts_of(alloc: Global, problems: &[Problem]) -> Result<Vec<Partition>, AllocError>
    ensures { IfOk result (λ cuts. AreCuts problems.now cuts.items) }
{
    let mut cuts = Vec::with_capacity(alloc, problems.len())?;
    for problem in problems {
        let cut = Partition::of(alloc, problem.limits())?;
        cuts.push(cut)?;
    }
    Ok(cuts)
}

// Solves a piece: a problem as it stands, where it has just one part, and else the part's own problem.
fn solve_piece<V: Solver>(
    alloc: Global,
    piece: Piece<'_>,
    solver: &V,
) -> Result<Solution, AllocError>
    requires { IsPiece piece }
    ensures { IfOk result (IsSolved (piece_of piece.entry)) }
{
    let (limits, network) = (piece.problem.limits(), piece.problem.network());
    if piece.partition.parts().len() == 1 {
        let solution = solver.solve(limits, network)?;
        let _potentials = solution.potentials();
        return Ok(solution);
    }
    let own = piece.partition.problem(alloc, limits, network, piece.at)?;
    let solution = solver.solve(own.limits(), own.network())?;
    let _potentials = solution.potentials();
    Ok(solution)
}

impl<'a> Pieces<'a> {
    // No piece.
    fn new(alloc: Global) -> Pieces<'a>
        ensures { result ≡ [] }
    {
        Pieces {
            pieces: Vec::new(alloc),
            alloc,
        }
    }

    // Adds the pieces of a problem.
    fn add(&mut self, problem: &'a Problem, partition: &'a Partition) -> Result<(), AllocError>
        requires { IsPartitionOf problem.now.limits partition.now }
        ensures { IfOk result (λ _. self.new ≡ self.old ++ pieces_in problem.now partition.now) }
    {
        for at in 0..partition.parts().len() {
            self.pieces.push(Piece {
                problem,
                partition,
                at,
            })?;
        }
        Ok(())
    }

    /// The pieces of problems that were cut so.
    pub fn of(
        alloc: Global,
        problems: &'a [Problem],
        cuts: &'a [Partition],
    ) -> Result<Pieces<'a>, AllocError>
        requires { AreCuts problems.now cuts.now }
        ensures { IfOk result (λ pieces. pieces ≡ pieces_of problems.now cuts.now) }
    {
        let mut pieces = Pieces::new(alloc);
        for at in 0..problems.len() {
            pieces.add(&problems[at], &cuts[at])?;
        }
        Ok(pieces)
    }

    /// How many they are.
    pub fn len(&self) -> usize
        ensures { result ≡ length self.now }
    {
        self.pieces.len()
    }

    /// A solution of the piece at a place. The problem of a part is made here. The only error is want of memory.
    pub fn solve<V: Solver>(&self, solver: &V, place: usize) -> Result<Solution, AllocError>
        requires { place < length self.now }
        ensures { IfOk result (SolvesAt self.now place) }
    {
        solve_piece(self.alloc, self.pieces[place], solver)
    }
}

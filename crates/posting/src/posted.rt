//! Whether posted solutions are certified. Shape comes first; then the products are tried in their order, and the first
//! one that is not certified is told with its first clash.

ghost use Rattle.std.specs.Prelude.{◌≡◌, ◌≤◌, length};
ghost use Rattle.std.specs.List.{list_all};
ghost use Rattle.network_laws.specs.Clash.{first_clash};
ghost use Rattle.command_types.specs.Cycles.{is_of_members, has_shape, bad_post};
ghost use Rattle.posting.specs.Posted.{AreOfMembers};
ghost use Rattle.units_core.specs.declared.limits.TheConstants.{MOST_PRODUCTS};

use command_types::BadPost;
use dual_certificate::check;
use network_laws::{Clash, Problem, Solution};
use units_core::ProductNo;

// A solution has a potential for each member of its network.
fn is_of_members(solution: &Solution, members: u16) -> bool
    ensures { result ≡ is_of_members members solution.now }
{
    solution.network().members() == members
}

fn are_of_members(solutions: &[Solution], members: u16) -> bool
    ensures { result ≡ list_all (is_of_members members) solutions.now }
{
    solutions
        .iter()
        .all(|solution| is_of_members(solution, members))
}

fn has_shape(members: u16, problems: &[Problem], solutions: &[Solution]) -> bool
    ensures { result ≡ has_shape members problems.now solutions.now }
{
    solutions.len() == problems.len() && are_of_members(solutions, members)
}

fn first_clash(problem: &Problem, solution: &Solution) -> Option<Clash>
    requires { solution.now.network.members ≡ problem.now.network.members }
    ensures { result ≡ first_clash problem.now.limits problem.now.network solution.now.network solution.now.potentials }
{
    check(
        problem.limits(),
        problem.network(),
        solution.network(),
        solution.potentials(),
    )
}

/// What is wrong with posted solutions of these problems, which have so many members; `None` exactly where there is
/// one for each problem, each with a network of as many members, and all are certified. It takes no memory.
pub fn bad_post(members: u16, problems: &[Problem], solutions: &[Solution]) -> Option<BadPost>
    requires few { length problems.now ≤ MOST_PRODUCTS }
    requires same_members { AreOfMembers members problems.now }
    ensures { result ≡ bad_post members problems.now solutions.now }
{
    if !has_shape(members, problems, solutions) {
        return Some(BadPost::Shape);
    }
    for place in 0..problems.len() {
        if let Some(clash) = first_clash(&problems[place], &solutions[place]) {
            let product = ProductNo(place as u16);
            return Some(BadPost::At { product, clash });
        }
    }
    None
}

// A part of the calls that carry a plan; no host calls it.
// The vertex as which each position of a plan compares: its own or, on the reduced game, the lowest member of its class.
ghost use Rattle.std.specs.Prelude.{true, ◌≤◌, length};
ghost use Rattle.theory.specs.Order.Order.{order};
ghost use Rattle.table.specs.Table.{vertex_count, game_of};
ghost use Rattle.table.specs.WellFormed.{WellFormed};
ghost use Rattle.classes.specs.Numbering.{Classed, Represented};
ghost use Rattle.plan_links.specs.PlanTable.{position_count};
ghost use Rattle.carry_output.specs.CarryParts.{Seats, Carriable};

use table::limits::VERTICES;
use table::slices;

// Writes the lowest member of each class, by the class of each vertex: from the last vertex down, so that the lowest is written last.
fn fill_lowest(game: &[u16], classes: &[u16], reps: &mut [u16])
    requires well_formed { WellFormed game.now × Classed (game_of game.now).n (order (game_of game.now)) classes.now }
    requires game_in_bounds { vertex_count game.now ≤ length reps.old }
    ensures { Represented (game_of game.now).n (order (game_of game.now)) reps.new }
{
    let n = game[0] as usize;
    for v in (0..n).rev() {
        let c = usize::from(classes[v]);
        reps[c] = v as u16;
    }
}

// The lowest member of each position's class. The lowest members of the classes are in a local array of 2,048 bytes.
fn seat_classes(game: &[u16], plan: &[u16], classes: &[u16], seats: &mut [u16])
    requires carriable { Carriable true game.now plan.now classes.now }
    requires plan_in_bounds { position_count plan.now ≤ length seats.old }
    ensures { Seats true game.now plan.now seats.new }
{
    let p = plan[0] as usize;
    let mut reps = [0u16; VERTICES];
    fill_lowest(game, classes, &mut reps);
    slices::gather(seats, 0, &reps, 0, &plan[2..2 + p], p);
}

// The same for a plan on the game itself, where no class is read, or, by class, on the reduced game.
pub fn seat_positions(
    game: &[u16],
    plan: &[u16],
    classes: &[u16],
    by_class: bool,
    seats: &mut [u16],
)
    requires carriable { Carriable by_class game.now plan.now classes.now }
    requires plan_in_bounds { position_count plan.now ≤ length seats.old }
    ensures { Seats by_class game.now plan.now seats.new }
{
    if by_class {
        seat_classes(game, plan, classes, seats);
        return;
    }
    let p = plan[0] as usize;
    slices::copy(seats, 0, &plan[2..2 + p], p);
}

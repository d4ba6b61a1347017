// What a solution of a reduced game says of the game that was reduced; the theorems stand in specs/.
#![tactic(auto)]

ghost use Rattle.std.specs.Prelude.{◌≡◌, ◌<◌, length};
ghost use Rattle.large_moves.specs.Moves.{winner_at};
ghost use Rattle.large_images.specs.Images.{class_at};

// The winner at vertex v: the one that the solution names at its class. Where `check_reduction` accepts the classes and `check_solution` the
// solution, it is who wins there (`class_winner`).
pub fn winner_at(classes: &[u32], solution: &[u32], v: usize) -> u32
    requires { (v < length classes.now) × (class_at classes.now v < length solution.now) }
    ensures { result ≡ winner_at solution.now (class_at classes.now v) }
{
    solution[classes[v] as usize]
}

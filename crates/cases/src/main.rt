// Cases that go through the compiled library, a line for each: its name, then the verdict.
#![tactic(auto)]

mod orders;
mod plans;
mod print;
mod reading;
mod reductions;
mod tables;

fn main(rt: HostRuntime) {
    reading::games(&rt);
    reading::bad_sizes(&rt);
    reading::bad_words(&rt);
    reading::limits(&rt);
    reading::kinds(&rt);
    orders::games(&rt);
    orders::mixed_owners(&rt);
    orders::chains(&rt);
    orders::short_buffers(&rt);
    orders::good_relations(&rt);
    orders::bad_relations(&rt);
    plans::games(&rt);
    plans::bad_players(&rt);
    plans::bad_sizes(&rt);
    plans::limits(&rt);
    plans::bad_words(&rt);
    plans::bad_positions(&rt);
    reductions::games(&rt);
    reductions::quotients(&rt);
    reductions::short_buffers(&rt);
}

// The worked examples of the reference, shown to hold of the definitions that the contracts cite.
#![tactic(auto)]

ghost use Rattle.std.specs.Prelude.{◌≡◌, length};
ghost use Rattle.examples.specs.Examples.{worked, WorkedExamplesHold};

fn table_size() -> usize
    ensures { result ≡ length worked }
{
    4
}

// How many worked examples there are, each of which holds.
pub fn worked_examples() -> usize
    ensures counts_the_table { result ≡ length worked }
    ensures every_example_holds { WorkedExamplesHold }
{
    table_size()
}

use strand_values::Target;

// Where a child's value goes.
#[derive(Drop)]
pub(crate) enum Destination {
    // A variable, if any, of the frame that spawned the child, which has this many below it.
    Spawned(u32, Option<Target>),
    // An array, if any, of the innermost frame, whose loop the child is.
    Looped(Option<Target>),
    // The values of the loop that it is a part of.
    Half,
}

// What scripts print, by `run`, `serial`, `sim`, `batch` and `replay`.

mod batches;
mod runs;
mod scopes;
mod simulations;
mod strands;
mod workers;

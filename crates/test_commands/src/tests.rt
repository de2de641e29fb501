// Calls of each command over sources and sinks in memory.

mod commands;
mod measures;
mod pages;
mod scripts;
mod shows;

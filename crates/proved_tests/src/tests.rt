mod calls;
mod circuits;
mod findings;
mod orders;
mod sweeps;
mod tables;
mod words;

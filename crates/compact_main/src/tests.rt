//! End to end: what is written, and what the user is told, by tables of runs.

mod certificates;
mod certified;
mod drawings;
mod drawn;
mod endings;
mod examples;
mod failing;
mod figures;
mod flaws;
mod forged;
mod hostile;
mod limits;
mod pitched;
mod refusals;
mod rows;
mod teams;
mod texts;

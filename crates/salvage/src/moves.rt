// A border's moves: read, and written again without borrowed runs.
pub mod ending;
pub mod pairs;
pub mod put;
pub mod redraw;
pub mod steps;

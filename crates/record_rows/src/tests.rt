mod cells;
mod recall;
mod results;
mod rows;
mod steps;

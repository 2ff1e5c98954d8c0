mod answers;
mod paths;
mod plans;
mod reports;
mod results;
mod rows;
mod slices;

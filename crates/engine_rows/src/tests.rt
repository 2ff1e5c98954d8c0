mod blocks;
mod edits;
mod entered;
mod opened;
mod rows;
mod steps;
mod told;
mod watched;

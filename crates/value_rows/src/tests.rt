mod claims;
mod literals;
mod rows;
mod terms;

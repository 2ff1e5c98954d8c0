mod documents;
mod lines;
mod outcomes;
mod seen;
mod terms;
mod tokens;

// Whole days with their printed text: what `daysheet` does, as tests of its library function.
#![tactic(auto)]

#[cfg(test)]
mod tests;

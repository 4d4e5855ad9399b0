// turnover's output: words and numbers written behind each other, and the lines that tell answers.
#![tactic(auto)]

pub mod answer;
pub mod text;

// The site reader: questions 2 to 8.
#![tactic(auto)]

pub mod site_reader;

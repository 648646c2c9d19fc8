// The elements of a site file, read into the image of a site: questions 2 and 4 to 7.
#![tactic(auto)]

pub mod declarations;
pub mod table_rows;
pub mod term;

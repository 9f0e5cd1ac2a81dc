//! Tests of the plain machine.

mod indexed;
mod machine;
mod records;

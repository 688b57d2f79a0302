//! The lines of an input, as they are cut, and its bytes.

use command_types::cut_lines_join;
use std::test::Fail;

#[test]
fn the_lines_of_an_input_join_to_its_bytes(_rt: HostRuntime) -> Result<(), Fail> {
    cut_lines_join();
    Ok(())
}

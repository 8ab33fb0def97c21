//! Tests of the crates below the kernel, over public calls. They are about files and sinks, the
//! plain data of the kernel, devices, words, regions and scripts; about lines, instructions, codes,
//! the assembler and the lines of a trace; and about plans of memory, the builder and the large
//! sample. Nothing else is here.
#![tactic(auto)]

#[cfg(test)]
mod devices_tests;
#[cfg(test)]
mod image_build_tests;
#[cfg(test)]
mod kernel_abi_tests;
#[cfg(test)]
mod mem_plan_tests;
#[cfg(test)]
mod outside_io_tests;
#[cfg(test)]
mod read_back_tests;
#[cfg(test)]
mod region_check_tests;
#[cfg(test)]
mod run_script_tests;
#[cfg(test)]
mod sample_gen_tests;
#[cfg(test)]
mod text_lines_tests;
#[cfg(test)]
mod thumb_asm_tests;
#[cfg(test)]
mod thumb_decode_tests;
#[cfg(test)]
mod thumb_encode_tests;
#[cfg(test)]
mod trace_text_tests;
#[cfg(test)]
mod words_core_tests;

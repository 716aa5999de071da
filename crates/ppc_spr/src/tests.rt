mod msr_values;
mod registers;

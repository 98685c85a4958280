//! Sides and books after each entry, and the printed text of levels, with answers that were written out.

mod books;
mod levels;

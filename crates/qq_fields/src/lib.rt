//! The fields of a format of bytes: numbers, flags, bytes and lists. Each is read from a prefix of bytes
//! and put at the end of others, and what was put is read again whatever follows it.
//!
//! A format has an enum of its own for why bytes aren't read, which is a [`Fault`]. Each of its fields has
//! a reading and an encoding in `specs/`, and in code a function of the reading's name. A point, whose
//! second number isn't 0, is
//!
//! ```text
//! unfoldable pub point_at : List ℕ → Field Bad Point
//! point_at bytes = do
//!   x ← number_at Short w32 bytes
//!   y ← checked Range (λ n. nat_lt 0 n) (number_at Short w32 x.1)
//!   Ok (record { x = x.0; y = y.0 }, y.1)
//!
//! unfoldable pub point : Point → List ℕ
//! point p = u32 p.x ++ u32 p.y
//! ```
//!
//! where `.0` is what was read, and `.1` the bytes behind it. The function is proved with no file:
//!
//! ```text
//! #[tactic(auto, unfolding(qq_fields::specs::Reading::checked, crate::specs::Bytes::point_at))]
//! fn point_at(bytes: &[u8]) -> Result<(Point, &[u8]), Bad>
//!     ensures { Gives memory_of (λ x. (x.0, x.1.now)) result (point_at bytes.now) }
//! {
//!     let (x, rest) = u32_at(bytes, Bad::Short)?;
//!     let (y, rest) = u32_at(rest, Bad::Short)?;
//!     if y == 0 {
//!         return Err(Bad::Range);
//!     }
//!     Ok((Point { x, y }, rest))
//! }
//! ```
//!
//! `Gives` says that a call answers what its definition reads, unless memory ran out, which no definition
//! knows. `memory_of` is the format's `Fault.memory`.
//!
//! A list is read by [`list_at`], or by [`many`] where the count is a field of another kind, once its
//! items are an [`Item`]: `impl Item<Bad> for Point` names `point_at`, `point` and which points have an
//! encoding. A reading may nest others, lists among them:
//!
//! ```text
//! shape_at bytes = do
//!   color ← number_at Short w8 bytes
//!   points ← list_at Short point_at color.1
//!   Ok ((color.0, points.0), points.1)
//!
//! let (color, rest) = u8_at(bytes, Bad::Short)?;
//! let (points, rest) = list_at(alloc, 8, rest, Bad::Short)?;
//! ```
//!
//! That a reading and an encoding are of each other is one lemma, `Reads` of `proofs/Laws.antt`: what is
//! read is in range and its encoding is the prefix that was taken, and what is in range is read again
//! from its encoding and anything behind it. Its first half is a `then_ok` for each field, its second an
//! `in_turn`:
//!
//! ```text
//! shape-reads : Reads shape_at shape IsShape
//! unfolding shape_at shape
//! shape-reads = record {
//!   takes = λ bytes fits.
//!       then_ok (number_at Short w8 bytes) _ ((u8-reads Short).takes bytes fits) (λ color p.
//!       then_ok (list_at Short point_at color.1) _
//!       ((list-reads Short point-reads).takes color.1 p.0.rest_fits) (λ points q.
//!       here _ (Takes-then p.0 q.0, (p.1, q.1))));
//!   again = λ s bytes rest e f.
//!       let split : bytes ≡ u8 s.0 ++ (list point s.1 ++ rest) = e in
//!       in_turn _ (number_at Short w8 bytes) _ ((u8-reads Short).again s.0 bytes _ split f.0)
//!       (in_turn _ (list_at Short point_at _) _
//!       ((list-reads Short point-reads).again s.1 _ rest refl f.1) refl);
//! }
//! ```
//!
//! Such a law of a whole format also gives that none of its encodings begins another (`none_begins`).
#![tactic(auto)]

mod fault;
mod items;
mod reading;
mod writing;

pub use fault::Fault;
pub use items::{Item, list_at, many, put_each, put_list};
pub use reading::{bytes_at, flag_at, u8_at, u16_at, u32_at, u64_at};
pub use writing::{put_bytes, put_flag, set_length};

//! Where the scalars of regions are found.

ghost use Rattle.std.specs.Prelude.{◌≡◌, ◌≤◌, ◌<◌, ◌^◌, pos, IfSome, unsigned_abs, slice_index_or, length, option_map};
ghost use Rattle.subsetter_blend.specs.Runs.Blend.{scalars_in};

/// The scalars of the regions of item variation data, at a location.
pub trait Regions {
    ghost use Rattle.std.specs.Prelude.{ℕ, ℤ, List, Option};

    ghost scalars: { Self → ℕ → Option (List ℤ) };

    /// How many regions the data of this number have, if there are such data.
    fn count(&self, data_index: u16) -> Option<usize>
        ensures value { result ≡ option_map length (scalars self.now data_index) }
        ensures few { IfSome result (λ n. n ≤ 65535) };

    /// The scalar of a region of the data of this number.
    fn scalar(&self, data_index: u16, region: usize) -> i64
        ensures value { region < length (scalars_in (scalars self.now data_index)) → result ≡ slice_index_or (scalars_in (scalars self.now data_index)) region (pos 0) }
        ensures bound { unsigned_abs result ≤ 2 ^ 30 };
}

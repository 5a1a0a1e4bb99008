//! Laws about the numbers of a picture. The function's body is empty: its contract has the laws.
ghost use Rattle.std.specs.Prelude.{◌≡◌, ◌+◌, AllPairs, All, false, true, length};
ghost use Rattle.map_tables.specs.Tables.{Tables};
ghost use Rattle.map_picture.specs.Labels.{all_labels, number_size};
ghost use Rattle.map_picture.specs.Placing.{IsBeside, left_out, lies_within, overlaps, page_box, placed_numbers};
ghost use Rattle.map_picture.specs.declared.view.View.{View};

/// No two numbers of a picture lie on one another, each is wholly on the page and at one of the places beside its item,
/// and each that is wanted is shown or counted among those that are left out.
pub fn no_two_numbers_meet()
    ensures apart { (m : Tables) (v : View)
        → AllPairs (λ a b. overlaps b.space a.space ≡ false) (placed_numbers m v) }
    ensures seen { (m : Tables) (v : View)
        → All (λ p. lies_within p.space (page_box v) ≡ true) (placed_numbers m v) }
    ensures beside { (m : Tables) (v : View)
        → All (IsBeside (number_size m v) (all_labels m v)) (placed_numbers m v) }
    ensures counted { (m : Tables) (v : View)
        → length (placed_numbers m v) + left_out m v ≡ length (all_labels m v) }
{}

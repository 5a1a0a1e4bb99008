//! What `check` and `lint` write if nothing is known of origins. Each law is the contract of a function whose body is
//! empty.
ghost use Rattle.std.specs.Prelude.{◌≡◌, ◌++◌, map};
ghost use Rattle.lump_records.specs.Names.{name_text};
ghost use Rattle.map_tables.specs.Tables.{Tables};
ghost use Rattle.map_checks.specs.Findings.{findings};
ghost use Rattle.map_checks.specs.Texts.{finding_text};
ghost use Rattle.map_lint.specs.Texts.{warning_text};
ghost use Rattle.run_edit.specs.Texts.{findings_text};
ghost use Rattle.cli_print.specs.Checking.{checked_text};
ghost use Rattle.cli_print.specs.Choosing.{LintWants, chosen_findings};
ghost use Rattle.cli_print.specs.Linting.{behind, remarks, wanted_warnings};
ghost use Rattle.cli_print.specs.Origins.{no_origin};

/// `check` writes what `edit` answers to the query `check`.
pub fn findings_alone()
    ensures { (m : Tables) → checked_text no_origin m ≡ findings_text (findings m) }
{}

/// `lint` writes the findings and warnings, each behind the map's name.
pub fn remarks_alone()
    ensures { (wants : LintWants) (m : Tables) → remarks no_origin wants m
        ≡ map (behind (name_text m.name))
        (map finding_text (chosen_findings wants.words (findings m))
        ++ map warning_text (wanted_warnings wants m)) }
{}

ghost use Rattle.std.specs.Prelude.{◌≡◌, ◌++◌, ℤ, pos, ◌≤ℤ◌, Ok, IfOk, IfSome, OnOk, OnErr};
ghost use Rattle.std.specs.Option.{option_copied, option_map};
ghost use Rattle.mt_base.specs.Bounds.{AreBoundedBands, AreBoundedTables, IsInPlane};
ghost use Rattle.mt_base.specs.Checks.{judged};
ghost use Rattle.mt_base.specs.Predictor.{band_at};
ghost use Rattle.mt_base.specs.Tables.{no_tables, bands_of, ceiling_of, fix_of, fix_checks, length_checks};
ghost use Rattle.mt_tables.specs.Adding.{AnswersAsChecked, fix_adding, type_adding, with_fix, with_type};

use crate::add_no::AddNo;
use crate::bands::{band_at, ceiling_of, tops_rise};
use crate::route::differ_from_next;
use indexmap::IndexMap;
use mt_base::{Band, Bands, FixName, Memory, Point, Route, RouteNo, TypeName, must};
use std::alloc::Global;
use std::marker::Model;

/// How many fixes there may be.
const MOST_FIXES: usize = 20_000;

/// How many types there may be.
const MOST_TYPES: usize = 1_000;

/// How many names a route has at most.
const LONGEST_ROUTE: usize = 64;

/// Fixes with their positions and types with their bands, each in the order in which they were added. Each fix lies in the plane, and
/// each type has 1 to 8 bands within their bounds.
#[derive(Drop)]
pub struct Tables {
    fixes: IndexMap<FixName, Point>,
    types: IndexMap<TypeName, Bands>,
}

impl Model for Tables {
    ghost use Rattle.mt_base.specs.Bounds.{AreBoundedTables};
    ghost use Rattle.mt_base.specs.Tables.{Tables};

    ghost Value = { Tables };

    ghost view = { λ t. record { fixes = t.fixes.entries; types = t.types.entries } };

    ghost invariant = { λ t. AreBoundedTables (record { fixes = t.fixes.entries; types = t.types.entries }) };
}

impl Tables {
    /// The tables without a fix or a type.
    pub fn make(alloc: Global) -> Result<Tables, Memory>
        ensures { OnOk result (result ≡ Ok no_tables) }
    {
        Ok(Tables {
            fixes: IndexMap::new(alloc),
            types: IndexMap::new(alloc),
        })
    }

    /// Puts a fix after the others, at a position in the plane, in 1/3600 of a nautical mile. `Taken` where one of that name stands,
    /// and `Full` where 20,000 fixes stand. On an error the tables stay as they were.
    pub fn add_fix(&mut self, name: FixName, x: i64, y: i64) -> Result<(), AddNo>
        requires { IsInPlane x y }
        ensures answer { AnswersAsChecked (judged (fix_adding self.old name) (tt {0})) result }
        ensures ok { OnOk result (self.new ≡ with_fix self.old name (record { x = x; y = y })) }
        ensures err { OnErr result (self.new ≡ self.old) }
    {
        self.check_fix(name)?;
        self.fixes.insert(name, Point { x, y })?;
        Ok(())
    }

    fn check_fix(&self, name: FixName) -> Result<(), AddNo>
        ensures { result ≡ judged (fix_adding self.now name) (tt {0}) }
    {
        must(!self.fixes.contains_key(&name), AddNo::Taken)?;
        must(self.fixes.len() < MOST_FIXES, AddNo::Full)
    }

    /// Puts a type after the others. `Taken` where one of that name stands, `Bands` where the tops of its bands do not rise strictly,
    /// and `Full` where 1,000 types stand. On an error the tables stay as they were.
    pub fn add_type(&mut self, name: TypeName, bands: &[Band]) -> Result<(), AddNo>
        requires { AreBoundedBands bands.now }
        ensures answer { AnswersAsChecked (judged (type_adding self.old name bands.now) (tt {0})) result }
        ensures ok { OnOk result (self.new ≡ with_type self.old name bands.now) }
        ensures err { OnErr result (self.new ≡ self.old) }
    {
        self.check_type(name, bands)?;
        let bands = kept(*self.types.allocator(), bands)?;
        self.types.insert(name, bands)?;
        Ok(())
    }

    fn check_type(&self, name: TypeName, bands: &[Band]) -> Result<(), AddNo>
        ensures { result ≡ judged (type_adding self.now name bands.now) (tt {0}) }
    {
        must(!self.types.contains_key(&name), AddNo::Taken)?;
        must(tops_rise(bands), AddNo::Bands)?;
        must(self.types.len() < MOST_TYPES, AddNo::Full)
    }

    /// The position of a fix; `None` exactly where no fix has that name. What all tables keep is said here too.
    pub fn fix(&self, name: FixName) -> Option<Point>
        ensures fix { result ≡ fix_of self.now name }
        ensures plane { IfSome result (λ p. IsInPlane p.x p.y) }
        ensures kept { AreBoundedTables self.now }
    {
        self.fixes.get(&name).copied()
    }

    /// The bands of a type, 1 to 8; `None` exactly where no type has that name.
    pub fn bands(&self, name: TypeName) -> Option<&[Band]>
        ensures bands { option_copied result ≡ bands_of self.now name }
        ensures bounded { IfSome result (λ bands. AreBoundedBands bands.now) }
        ensures kept { AreBoundedTables self.now }
    {
        let bands = self.types.get(&name)?;
        Some(bands.items())
    }

    /// Each fix lies in the plane, and each type has 1 to 8 bands within their bounds. It does nothing.
    pub fn keeps(&self)
        ensures { AreBoundedTables self.now }
    {
        self.fixes.len();
    }

    /// The ceiling of a type, a flight level: the top of its last band; `None` exactly where no type has that name.
    pub fn ceiling(&self, name: TypeName) -> Option<u32>
        ensures { result ≡ option_map ceiling_of (bands_of self.now name) }
    {
        let bands = self.bands(name)?;
        Some(ceiling_of(bands))
    }

    /// The band of a type that holds a height in 1/60 of a foot, of at least 0; `None` exactly where no type has that name.
    pub fn band(&self, name: TypeName, z: i64) -> Option<Band>
        requires { pos 0 ≤ℤ z }
        ensures { result ≡ option_map (λ bands. band_at bands z) (bands_of self.now name) }
    {
        let bands = self.bands(name)?;
        Some(band_at(bands, z))
    }

    /// Whether the names are a route: `UnknownFix` for the first that no fix has, else `Short` for fewer than two, else `Long` for more
    /// than 64, else `Twice` for two equal neighbours.
    pub fn route_check(&self, route: &Route) -> Result<(), RouteNo>
        ensures { result ≡ judged (fix_checks self.now route.now ++ length_checks route.now) (tt {0}) }
    {
        let names = route.items();
        for name in names {
            must(self.fixes.contains_key(name), RouteNo::UnknownFix(*name))?;
        }
        must(names.len() >= 2, RouteNo::Short)?;
        must(names.len() <= LONGEST_ROUTE, RouteNo::Long)?;
        must(differ_from_next(names), RouteNo::Twice)
    }
}

// The same bands, to be kept.
fn kept(alloc: Global, bands: &[Band]) -> Result<Bands, Memory>
    ensures { IfOk result (λ list. list ≡ bands.now) }
{
    let mut list = Bands::make(alloc)?;
    for band in bands {
        list.push(*band)?;
    }
    Ok(list)
}

//! Requests that are made before the picture begins.
ghost use Rattle.std.specs.Prelude.{◌≡◌, ◌⊎◌, ℕ, [], IfOk, OnErr, true, false, replicate};
ghost use Rattle.std.specs.Arc.{arc_value};
ghost use Rattle.mt_base.specs.Area.{IsBoundedArea};
ghost use Rattle.mt_base.specs.Bounds.{AreBoundedBands, AreWithinBounds, IsInPlane};
ghost use Rattle.mt_base.specs.Checks.{judged};
ghost use Rattle.mt_tables.specs.Adding.{fix_adding, type_adding, with_fix, with_type};
ghost use Rattle.mt_write.specs.declared.reply.DoneWord.TheVariants as done;
ghost use Rattle.mt_write.specs.declared.reply.Reply.TheVariants as replies;
ghost use Rattle.mt_read.specs.declared.request.Request.TheVariants as requests;
ghost use Rattle.mt_read.specs.Bounded.{IsBoundedRequest};
ghost use Rattle.mt_read.specs.Rules.{rules_with};
ghost use Rattle.mt_lines.specs.Fit.{IsFit};
ghost use Rattle.mt_world.specs.Begun.{is_begin};
ghost use Rattle.mt_world.specs.World.{IsAdded, IsGiven, IsRefused, IsServed, IsStarved, new_actor, not_added, opening_world};

use crate::passing::area_not_added;
use crate::world::World;
use mt_area::Areas;
use mt_base::{Area, Bands, FixName, Memory, Rules, TypeName};
use mt_picture::Picture;
use mt_read::{Request, RuleSet};
use mt_tables::{AddNo, Tables};
use mt_write::{DoneWord, Reply};
use std::alloc::Global;
use std::marker::Model;
use std::sync::Arc;

/// What requests set up before the picture begins: the rules, the tables, and the restricted areas.
#[derive(Drop)]
pub(crate) struct Setting {
    rules: Rules,
    tables: Arc<Tables>,
    areas: Areas,
}

impl Model for Setting {
    ghost use Rattle.std.specs.Arc.{arc_value};
    ghost use Rattle.mt_base.specs.Bounds.{AreWithinBounds};
    ghost use Rattle.mt_world.specs.World.{World, world_set_up};

    ghost Value = { World };

    ghost view = { λ s. world_set_up s.rules (arc_value s.tables) s.areas };

    ghost invariant = { λ s. AreWithinBounds s.rules };
}

impl Setting {
    /// The usual rules, and no fix, no type and no area.
    pub(crate) fn make(alloc: Global) -> Result<Setting, Memory>
        ensures { IfOk result (λ setting. setting ≡ opening_world) }
    {
        let tables = Tables::make(alloc)?;
        Ok(Setting {
            rules: Rules::usual(),
            tables: Arc::new(alloc, tables)?,
            areas: Areas::make(alloc)?,
        })
    }

    /// The rules that stand. That the picture hasn't begun, and that its history is empty, is said here too.
    pub(crate) fn rules(&self) -> Rules
        ensures rules { result ≡ self.now.rules }
        ensures bounded { AreWithinBounds result }
        ensures before { self.now.begun ≡ false }
        ensures empty { self.now.history ≡ [] }
    {
        self.rules
    }

    /// The picture hasn't begun, and its history is empty. It does nothing.
    pub(crate) fn keeps(&self)
        ensures before { self.now.begun ≡ false }
        ensures empty { self.now.history ≡ [] }
    {
        self.rules();
    }

    /// The tables that stand. They are shared and not copied.
    pub(crate) fn tables(&self) -> Result<Arc<Tables>, Memory>
        ensures { IfOk result (λ tables. arc_value tables ≡ self.now.tables) }
    {
        Ok(Arc::try_clone(&self.tables)?)
    }

    /// Serves a request, whoever asks. It asks that the request doesn't begin the picture.
    pub(crate) fn serve(&mut self, alloc: Global, request: &Request) -> Reply
        requires stays { request.now ≡ requests.Begin → ⊥ }
        requires bounded { IsBoundedRequest self.old.rules request.now }
        ensures served { (who : ℕ) → IsServed self.old who request.now result self.new ⊎ IsStarved self.old who request.now result self.new }
        ensures fit { IsFit result }
        ensures stays { is_begin result ≡ false }
        ensures before { self.new.begun ≡ false }
        ensures empty { self.new.history ≡ [] }
    {
        self.keeps();
        match request {
            Request::Fix { name, x, y } => self.add_fix(*name, *x, *y),
            Request::TypeLine { name, bands } => self.add_type(*name, bands),
            Request::Rule(set) => self.set_rules(set),
            Request::Area(area) => self.add_area(alloc, area),
            Request::Begin => unreachable!(),
            Request::Hello(role) => Reply::Hello(*role),
            Request::Bye => Reply::Done(DoneWord::Bye),
            Request::Ask(_) => Reply::Unbegun,
            Request::Change(_) => Reply::Unbegun,
            Request::Take => Reply::Unbegun,
            Request::Probe { .. } => Reply::Unbegun,
            Request::Accept { .. } => Reply::Unbegun,
            Request::Advise { .. } => Reply::Unbegun,
            Request::Settle => Reply::Unbegun,
            Request::Areas => Reply::Unbegun,
        }
    }

    /// The world of these rules, tables and areas, whose picture has begun, with the tables shared. Where memory is wanted nothing changes.
    pub(crate) fn world(&mut self, alloc: Global) -> Result<(Arc<Tables>, World), Memory>
        ensures tables { IfOk result (λ r. arc_value r.0 ≡ self.old.tables) }
        ensures world { IfOk result (λ r. r.1.world ≡ record self.old { begun = true; history = []; actors = replicate 16 new_actor }) }
        ensures before { self.old.begun ≡ false }
        ensures stays { (self.new.begun ≡ false) × (self.new.history ≡ []) }
        ensures unchanged { OnErr result (self.new ≡ self.old) }
    {
        self.keeps();
        let tables = Arc::try_clone(&self.tables)?;
        let shared = Arc::try_clone(&self.tables)?;
        let picture = Picture::make(alloc, self.rules, shared)?;
        let mut world = World::make(alloc, picture)?;
        world.swap_areas(&mut self.areas);
        Ok((tables, world))
    }

    // Adds a fix.
    fn add_fix(&mut self, name: FixName, x: i64, y: i64) -> Reply
        requires { IsInPlane x y }
        ensures answered { IsAdded self.old (judged (fix_adding self.old.tables name) (tt {0})) done.Fix (replies.TakenFix name)
            (with_fix self.old.tables name (record { x = x; y = y })) result self.new ⊎ IsRefused self.old replies.Memory result self.new }
        ensures fit { IsFit result }
        ensures stays { is_begin result ≡ false }
        ensures before { self.new.begun ≡ false }
        ensures empty { self.new.history ≡ [] }
    {
        let Some(tables) = Arc::get_mut(&mut self.tables) else {
            return Reply::Memory;
        };
        if let Err(refusal) = tables.add_fix(name, x, y) {
            return not_added(Reply::TakenFix(name), refusal);
        }
        Reply::Done(DoneWord::Fix)
    }

    // Adds a type of aircraft.
    fn add_type(&mut self, name: TypeName, bands: &Bands) -> Reply
        requires { AreBoundedBands bands.now }
        ensures answered { IsAdded self.old (judged (type_adding self.old.tables name bands.now) (tt {0})) done.TypeLine (replies.TakenType name)
            (with_type self.old.tables name bands.now) result self.new ⊎ IsRefused self.old replies.Memory result self.new }
        ensures fit { IsFit result }
        ensures stays { is_begin result ≡ false }
        ensures before { self.new.begun ≡ false }
        ensures empty { self.new.history ≡ [] }
    {
        let Some(tables) = Arc::get_mut(&mut self.tables) else {
            return Reply::Memory;
        };
        if let Err(refusal) = tables.add_type(name, bands.items()) {
            return not_added(Reply::TakenType(name), refusal);
        }
        Reply::Done(DoneWord::TypeLine)
    }

    // Puts an area after the others.
    fn add_area(&mut self, alloc: Global, area: &Area) -> Reply
        requires { IsBoundedArea area.now }
        ensures served { (who : ℕ) → IsServed self.old who (requests.Area area.now) result self.new
            ⊎ IsStarved self.old who (requests.Area area.now) result self.new }
        ensures fit { IsFit result }
        ensures stays { is_begin result ≡ false }
        ensures before { self.new.begun ≡ false }
        ensures empty { self.new.history ≡ [] }
    {
        self.keeps();
        let Ok(copy) = area.copy(alloc) else {
            return Reply::Memory;
        };
        if let Err(refusal) = self.areas.add(copy) {
            return area_not_added(area.name, refusal);
        }
        Reply::Done(DoneWord::Area)
    }

    // Sets rules.
    fn set_rules(&mut self, set: &RuleSet) -> Reply
        requires { AreWithinBounds (rules_with set.now self.old.rules) }
        ensures answered { IsGiven (replies.Done done.Rule) (record self.old { rules = rules_with set.now self.old.rules }) result self.new }
        ensures fit { IsFit result }
        ensures stays { is_begin result ≡ false }
        ensures before { self.new.begun ≡ false }
        ensures empty { self.new.history ≡ [] }
    {
        self.rules = set.over(&self.rules);
        Reply::Done(DoneWord::Rule)
    }
}

// The refusal of a line that adds a fix or a type, `taken` where one of that name stands.
fn not_added(taken: Reply, refusal: AddNo) -> Reply
    ensures answer { result ≡ not_added taken refusal }
    ensures stays { is_begin taken ≡ false → is_begin result ≡ false }
{
    match refusal {
        AddNo::Taken => taken,
        AddNo::Bands => Reply::Bands,
        AddNo::Full => Reply::TablesFull,
        AddNo::Memory => Reply::Memory,
    }
}

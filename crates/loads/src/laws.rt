// The laws of additions and growths.
ghost use Rattle.loads.specs.Keeps.{Keeps, GrowthKeeps, GrowthRises};

pub fn keeps_stands()
    ensures { Keeps }
{}

pub fn growth_keeps_stands()
    ensures { GrowthKeeps }
{}

pub fn growth_rises_stands()
    ensures { GrowthRises }
{}

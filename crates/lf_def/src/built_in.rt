//! A small DEF text for tests.

/// Four rows of 50 core sites, two fences with a group each, five unplaced components, and a
/// placement blockage.
pub const DEMO_DEF: &[u8] = b"VERSION 5.8 ;
DIVIDERCHAR \"/\" ;
BUSBITCHARS \"[]\" ;
DESIGN w ;
UNITS DISTANCE MICRONS 1000 ;
ROW r0 core 0 0 N DO 50 BY 1 STEP 200 0 ;
ROW r1 core 0 2000 FS DO 50 BY 1 STEP 200 0 ;
ROW r2 core 0 4000 N DO 50 BY 1 STEP 200 0 ;
ROW r3 core 0 6000 FS DO 50 BY 1 STEP 200 0 ;
REGIONS 2 ;
- A ( 0 0 ) ( 4000 4000 ) + TYPE FENCE ;
- B ( 6000 0 ) ( 10000 8000 ) + TYPE FENCE ;
END REGIONS
COMPONENTS 5 ;
- a1 INV + SOURCE DIST ;
- a2 INV + UNPLACED ;
- a3 DBL + WEIGHT 3 ;
- b1 INV ;
- g1 INV ;
END COMPONENTS
BLOCKAGES 1 ;
- PLACEMENT RECT ( 4000 0 ) ( 4400 2000 ) ;
END BLOCKAGES
GROUPS 2 ;
- ga a* + REGION A ;
- gb b1 + REGION B ;
END GROUPS
END DESIGN
";

//! A small LEF text for tests.

/// One core site, and two library cells, one and two rows high: `INV` and `DBL`.
pub const DEMO_LEF: &[u8] = b"VERSION 5.8 ;
SITE core
  CLASS CORE ;
  SYMMETRY Y ;
  SIZE 0.2 BY 2.0 ;
END core
MACRO INV
  CLASS CORE ;
  ORIGIN 0 0 ;
  SIZE 0.4 BY 2.0 ;
  SYMMETRY X Y ;
  SITE core ;
  PIN VSS
    USE GROUND ;
    PORT
      LAYER m1 ;
      RECT 0 -0.1 0.4 0.1 ;
    END
  END VSS
  PIN VDD
    USE POWER ;
    PORT
      LAYER m1 ;
      RECT 0 1.9 0.4 2.1 ;
    END
  END VDD
END INV
MACRO DBL
  CLASS CORE ;
  SIZE 0.6 BY 4.0 ;
  SYMMETRY X Y ;
  SITE core ;
  PIN VSS
    USE GROUND ;
    PORT
      LAYER m1 ;
      RECT 0 -0.1 0.6 0.1 ;
      RECT 0 3.9 0.6 4.1 ;
    END
  END VSS
END DBL
END LIBRARY
";
